//! The items of a model file.

use effect_term::Value;
use model_forms::{Block, Form};

/// A name for a number: `(define NAME NUMBER)`.
#[derive(Clone, Copy)]
pub struct Constant {
    /// Its name.
    pub name: Form,
    /// Its number.
    pub number: Value,
}

/// A name for a term with parts: `(define (NAME part ..) statement ..)`.
#[derive(Clone, Copy)]
pub struct Definition {
    /// Its name.
    pub name: Form,
    /// Its parts.
    pub parts: Block,
    /// Its statements, at least one.
    pub body: Block,
}

/// A term with claims about it: `(model NAME "text" claim .. (run statement ..))`.
#[derive(Clone, Copy)]
pub struct Model {
    /// Its name.
    pub name: Form,
    /// Its description, if it has one.
    pub text: Option<Form>,
    /// Its claims and bounds and, last, its `run`.
    pub claims: Block,
    /// Its statements, at least one.
    pub body: Block,
}

/// An item of a model file.
#[derive(Clone, Copy)]
pub enum Item {
    /// A name for a number.
    Constant(Constant),
    /// A name for a term.
    Definition(Definition),
    /// Bounds for every model of the file.
    Defaults(Block),
    /// A model.
    Model(Model),
}
