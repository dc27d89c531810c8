// The tests of cmi5_course.
mod courses;
mod limits;
mod rules;
