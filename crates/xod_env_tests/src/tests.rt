//! The tests, a module for each subject.
mod crashes;
mod damage;
mod folder;
mod pinned;
mod refusals;
mod seen;
mod store;
mod worked;
