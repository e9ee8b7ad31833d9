// What is kept of all effects by words, a scan and a skip of it, and that they are those of the slots: definitions and laws alone.
// The code that these definitions describe is `engine`. It rests on `planes` for the rules by words and on `rounds` for the held run over
// slots. All of it may change without moving a contract of an entry point.
#![tactic(auto)]
