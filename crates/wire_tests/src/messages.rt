// The tests of lrs_http.
mod requests;
mod responses;
