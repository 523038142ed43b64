// The numbers of a model, of which nothing is known. `kind` is 0 for a table, and any other number for knots: no enum, since any
// number may come from C.
#[repr(C)]
#[derive(Clone, Copy)]
pub struct CNumbers<'a> {
    pub kind: u32,
    pub sets: u32,
    pub scenarios: u32,
    pub rates: &'a [u32],
    pub ticks: &'a [u32],
    pub changes: &'a [i32],
}
