//! The acts of three transactions, and the queries that are asked behind each act.
use xod_trial::Datum::{Flag, Int, Letters, Text};
use xod_trial::Given::{Delete, Link, New, Set, SetLink, Unlink, UnlinkAll, Unset};
use xod_trial::{Datum, Given, Id};

/// A name as long as one may be, of 255 bytes.
const LONG: &str = "\
    nnnnnnnnnnnnnnnnnnnnnnnnnnnnnnnnnnnnnnnnnnnnnnnnnnnnnnnnnnnnnnnn\
    nnnnnnnnnnnnnnnnnnnnnnnnnnnnnnnnnnnnnnnnnnnnnnnnnnnnnnnnnnnnnnnn\
    nnnnnnnnnnnnnnnnnnnnnnnnnnnnnnnnnnnnnnnnnnnnnnnnnnnnnnnnnnnnnnnn\
    nnnnnnnnnnnnnnnnnnnnnnnnnnnnnnnnnnnnnnnnnnnnnnnnnnnnnnnnnnnnnnn";

/// The types that are made, and one that is never made.
pub(crate) const KINDS: &[&str] = &["Project", "Issue", "Person", LONG, "Nobody"];

/// How many types are gone through, and how many entities of each, where all are shown.
pub(crate) const SHOWN: Id = (4, 6);

/// What is found.
pub(crate) const FINDS: &[(&str, &str, Datum)] = &[
    ("Project", "name", Text("xod")),
    ("Project", "name", Flag(false)),
    ("Project", "Name", Text("ANOTHER")),
    ("Project", "size", Int(-3)),
    ("Issue", "title", Text("BUG")),
    ("Issue", "title", Int(7)),
    ("Issue", "open", Flag(true)),
    ("Issue", "size", Int(i64::MIN)),
    ("Person", "name", Text("")),
    ("Person", "name", Text("ÜNAL")),
    ("Person", "note", Letters(b'x', 1024)),
    ("Person", "title", Text("bug")),
    ("Issue", "never", Flag(true)),
    ("Nobody", "name", Text("xod")),
];

/// Over a store without contents.
pub(crate) const FIRST: &[Given] = &[
    New("Project"),
    New("Issue"),
    New("Issue"),
    New("Person"),
    New("Project"),
    // values set to the same, to one that differs in case alone, and to others
    Set((0, 0), "name", Text("Xod")),
    Set((0, 0), "name", Text("Xod")),
    Set((0, 0), "name", Text("xOD")),
    Set((0, 0), "size", Int(3)),
    Set((0, 0), "size", Int(3)),
    Set((0, 0), "size", Int(-3)),
    Set((0, 0), "Name", Text("another")),
    Set((0, 1), "size", Int(-3)),
    Set((1, 0), "title", Text("Bug")),
    Set((1, 1), "title", Text("bUG")),
    Set((1, 0), "open", Flag(false)),
    Set((1, 1), "open", Flag(true)),
    Set((1, 0), "size", Int(i64::MIN)),
    Set((1, 1), "size", Int(i64::MAX)),
    Set((2, 0), "name", Text("Ünal")),
    Set((2, 0), "name", Text("")),
    // a text that is too long, and the longest one
    Set((2, 0), "note", Letters(b'x', 1025)),
    Set((2, 0), "note", Letters(b'x', 1024)),
    Set((2, 5), "note", Letters(b'x', 1025)),
    Set((3, 0), "name", Flag(true)),
    Unset((0, 1), "size"),
    Unset((0, 1), "size"),
    Unset((0, 1), "never"),
    Unset((3, 0), "name"),
    // links, to itself too, and with ends that are not there
    Link((1, 0), "of", (0, 0)),
    Link((1, 0), "of", (0, 0)),
    Link((1, 1), "of", (0, 0)),
    Link((1, 0), "of", (0, 1)),
    Link((1, 0), "by", (2, 0)),
    Link((1, 0), "OF", (0, 0)),
    Link((1, 0), "of", (1, 0)),
    Link((1, 0), "of", (0, 5)),
    Link((1, 5), "of", (0, 0)),
    Link((1, 5), "of", (0, 5)),
    Unlink((1, 0), "of", (0, 1)),
    Unlink((1, 0), "of", (0, 1)),
    Unlink((1, 0), "never", (0, 0)),
    Unlink((1, 0), "of", (0, 5)),
    Unlink((1, 5), "of", (0, 0)),
];

/// Over the first commit.
pub(crate) const SECOND: &[Given] = &[
    New("Issue"),
    New("Person"),
    New("Project"),
    Set((1, 2), "title", Text("BUG")),
    Set((1, 0), "title", Text("Bug")),
    Set((1, 0), "title", Int(7)),
    // a value set and set back
    Set((1, 1), "open", Flag(false)),
    Set((1, 1), "open", Flag(true)),
    Set((0, 0), "name", Flag(false)),
    // one link in the place of others
    Link((1, 2), "of", (0, 2)),
    Link((1, 2), "of", (0, 1)),
    Link((1, 2), "of", (0, 0)),
    SetLink((1, 2), "of", (0, 1)),
    SetLink((1, 2), "of", (0, 1)),
    SetLink((1, 2), "of", (0, 2)),
    SetLink((1, 0), "lead", (2, 1)),
    SetLink((1, 0), "of", (0, 0)),
    SetLink((1, 0), "of", (0, 5)),
    SetLink((1, 5), "of", (0, 0)),
    Link((0, 0), "of", (0, 0)),
    Link((0, 0), "lead", (2, 0)),
    Link((2, 0), "knows", (2, 1)),
    Link((2, 1), "knows", (2, 0)),
    Link((2, 1), "knows", (2, 1)),
    UnlinkAll((2, 1), "knows"),
    UnlinkAll((2, 1), "knows"),
    UnlinkAll((1, 1), "never"),
    UnlinkAll((1, 5), "of"),
    // an entity goes, with properties and links from both sides
    Delete((0, 0)),
    Delete((0, 0)),
    Set((0, 0), "name", Text("Xod")),
    Unset((0, 0), "name"),
    Link((1, 0), "of", (0, 0)),
    Link((0, 0), "of", (1, 0)),
    Unlink((1, 1), "of", (0, 0)),
    Unlink((0, 0), "lead", (2, 0)),
    UnlinkAll((0, 0), "of"),
    New("Project"),
];

/// Over the second commit.
pub(crate) const THIRD: &[Given] = &[
    Delete((2, 0)),
    Delete((1, 2)),
    New("Person"),
    New("Issue"),
    // an entity made and taken away at once
    Set((1, 3), "title", Text("bug")),
    Link((1, 3), "of", (1, 3)),
    Link((1, 3), "of", (1, 1)),
    Link((1, 1), "of", (1, 3)),
    Delete((1, 3)),
    New("Issue"),
    Delete((1, 0)),
    Delete((1, 1)),
    // the longest name, in each act that takes one
    New(LONG),
    Set((3, 0), LONG, Int(1)),
    Link((3, 0), LONG, (3, 0)),
    SetLink((3, 0), LONG, (1, 4)),
    Unlink((3, 0), LONG, (1, 4)),
    UnlinkAll((3, 0), LONG),
    Unset((3, 0), LONG),
    Set((3, 0), LONG, Letters(b'y', 1024)),
];
