// The tests of cmi5_running_sessions and cmi5_running_verdicts: what is kept is held against what all statements tell,
// behind each line of a text.
mod comparing;
mod plain;
mod rows;
mod said;
mod scripts;
mod setting;
mod store;
mod taking;
