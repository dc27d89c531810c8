// The tests of lrs_routes and lrs_bodies: what requests ask, as rows of a text. `rows` says what a row is.
mod asking;
mod desk;
mod documents;
mod requests;
mod rows;
mod statements;
