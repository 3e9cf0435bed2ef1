//! A conflict-driven solver over clauses as plain lists, which logs each clause that it learns with its hints.
//!
//! It follows J. P. Marques-Silva and K. A. Sakallah, "GRASP: a search algorithm for propositional satisfiability", 1999, M. Moskewicz,
//! C. Madigan, Y. Zhao, L. Zhang and S. Malik, "Chaff: engineering an efficient SAT solver", 2001, and, in its restarts and in what it
//! keeps, G. Audemard and L. Simon, "Predicting learnt clauses quality in modern SAT solvers", 2009. Nothing is promised of what it
//! answers, so that no call has a clause on it: whoever asks for a proof checks it.
#![tactic(auto)]

pub mod analysis;
pub mod circuit;
pub mod code;
pub mod conclusion;
pub mod given;
pub mod log;
pub mod order;
pub mod propagation;
pub mod reduction;
pub mod search;
pub mod solver;
pub mod table;
