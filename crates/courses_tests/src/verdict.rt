// The tests of cmi5_verdict: what statements tell of the nodes of a course, as lines of a text.
mod blocks;
mod ids;
mod rows;
mod said;
mod units;
