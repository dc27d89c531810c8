// The tests of xapi_docs.
mod documents;
mod merging;
