// Document 01's worked examples, computed: the corner table, and the session's events, its listing and its bytes as they cross from the
// static library; and document 02's table of the session's season totals. It has definitions and laws alone. It rests on `block`, `rerun`,
// `listing`, `pohandira` and `season`, and stands apart so that their edits do not compute the examples again. How an example is computed
// may change; the examples are those of the documents.
#![tactic(auto)]
