// The tests of lrs_edge: real files and streams, and TCP connections over loopback.
mod connections;
mod files;
mod gathered;
