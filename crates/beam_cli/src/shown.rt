//! The tables that can be shown.

/// A table of a module that is shown as text.
#[derive(Clone, Copy, Debug, PartialEq, Eq)]
pub enum Shown {
    /// The atoms, of the chunk `AtU8`.
    Atoms,
    /// The imported functions, of the chunk `ImpT`.
    Imports,
    /// The exported functions, of the chunk `ExpT`.
    Exports,
    /// The functions that are not exported, of the chunk `LocT`.
    Locals,
    /// The funs, of the chunk `FunT`.
    Funs,
    /// The literals, of the chunk `LitT`.
    Literals,
    /// The lines of the source, of the chunk `Line`.
    Lines,
    /// The attributes, of the chunk `Attr`.
    Attributes,
    /// How the module was compiled, of the chunk `CInf`.
    Compile,
}
