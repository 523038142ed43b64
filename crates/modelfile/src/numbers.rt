// The numbers of a model as a text has them: nothing is known of them.
use super::kind::Kind;
use owned::owned_model::OwnedNumbers;

#[derive(Drop)]
pub struct NamedNumbers {
    pub kind: Kind,
    pub numbers: OwnedNumbers,
}
