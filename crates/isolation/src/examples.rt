// That the law speaks of something.
ghost use Rattle.isolation.specs.Examples.{Examples};

// Two lists that differ in the others' calls and agree for one constituent; one in which a restriction that goes and comes releases it;
// and one without these two changes, in which it is not released, though its calls and the bit after each are the same. And the like
// for the house and the cover.
#[tactic(auto, using(crate::proofs::Worked::examples))]
pub fn isolation_examples()
    ensures { Examples }
{}
