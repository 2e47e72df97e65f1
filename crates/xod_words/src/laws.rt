//! What reading and printing are to each other, said once for all queries; nothing here runs.
ghost use Rattle.xod_words.specs.Laws.{PrintedIsReadBack};

/// What `print_query` prints of a query that can be written down, within the limits, `read_query` reads as that query.
pub fn what_is_printed_is_read_back()
    ensures { PrintedIsReadBack }
{}
