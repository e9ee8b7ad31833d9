// A held run over lists of signals and slots, scan by scan, and that rounds result in the same. Document 01, "Held runs and their two
// counts". This crate has definitions and laws alone; the code that works by rounds is in `engine`. It rests on `effects`, `rules` and
// `bits`. The held run that users are promised is `run` in block/specs/Held. Inner contracts alone cite what stands here, and all of it
// may change without moving a contract of an entry point.
#![tactic(auto)]
