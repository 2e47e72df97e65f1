//! The tests, a module for each subject.
mod commit;
mod deep;
mod edges;
mod failing;
mod mixed;
mod store;
mod worked;
