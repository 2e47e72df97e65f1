//! The law of the audit; nothing here runs.
ghost use Rattle.xod_audit.specs.Laws.{TestsTell};

/// Walks over the trees and look-ups tell whether they are the tables of some rows.
pub fn tests_tell()
    ensures { TestsTell }
{}
