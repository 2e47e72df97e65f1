//! What the normal form is good for, said once for all queries; nothing here runs.
ghost use Rattle.xod_handle.specs.Laws.{NormalAnswersTheSame, NormalIsItsOwn, NormalStaysNamed, TextsTell};

/// Two queries with one text are the same query.
pub fn texts_tell()
    ensures { TextsTell }
{}

/// A query and its normal form have the same answer.
pub fn normal_answers_the_same()
    ensures { NormalAnswersTheSame }
{}

/// The normal form of a query that can be written down can be written down.
pub fn normal_stays_named()
    ensures { NormalStaysNamed }
{}

/// A normal form is its own normal form.
pub fn normal_is_its_own()
    ensures { NormalIsItsOwn }
{}
