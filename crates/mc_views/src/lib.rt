//! Facts about the views of a shared structure: what each thread that shares it knows of it.
//! The crate takes and gives no value. It has the two words in which the rules of the lock
//! and of the status board are written, `Each` and `Apart`, and the lemmas on them.
#![tactic(auto)]
