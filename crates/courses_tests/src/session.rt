// The tests of cmi5_session: the rules on what may be said of a learner, as lines of a text.
mod orders;
mod outside;
mod phases;
mod results;
mod rows;
mod rules;
