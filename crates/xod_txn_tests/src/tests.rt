//! The tests, a module for each subject.
mod both;
mod history;
mod limits;
mod list;
mod modes;
mod says;
mod worked;
