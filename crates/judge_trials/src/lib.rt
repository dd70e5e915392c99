// The judge's loop: constraint by constraint, are they true once all bindings are put in?
#![tactic(auto)]

pub mod inner;
