/// How deep the arrays and objects of a JSON text may nest.
pub const DEPTH: u32 = 64;
