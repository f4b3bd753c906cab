//! The film of which a demuxer's journal tells, by a file's octets: its packets, its ending, the
//! tracks whose blocks can be read, its parts from mark to mark, and the mark at each block. The
//! crate takes and gives no value. It has the words that tie the walk through a film's elements
//! (`mc_walk`) to what is said of journals (`mc_journal`), so that neither has to know the other.
#![tactic(auto)]
