//! What follows from the definitions for all bindings. The functions do nothing: code calls one
//! where its proof needs the clauses.
ghost use Rattle.xc_verdict.specs.Laws.{HasOneVerdict};

/// A binding has at most one verdict.
pub fn one_verdict()
    ensures { HasOneVerdict }
{}
