// The user's demands on one page (specs/Demands; proofs/Demands proves them), what each contract gives (specs/Answers), and that
// it allows one answer only (proofs/Unique, Inner). Document 01, whole. This crate has definitions and laws alone. It rests on all
// libraries except `printing` and `inputs`, whose answers depend on what a program is given and on what reads its output, and `worked`,
// whose examples pin the definitions. Nothing rests on it: its proofs may change freely, and its statements are the promises.
#![tactic(auto)]
