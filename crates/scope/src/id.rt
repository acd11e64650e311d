// Numbers of different kinds: an atom, a context, a module number and a file are types of their own, so that no call accepts one for another.
// Port of swc_bundler's `id.rs`.
ghost use Rattle.std.specs.Prelude.{◌≡◌};
ghost use Rattle.scope.specs.Id.{empty, context, local_ctxt, export_ctxt};

// A name; equal names have equal atoms.
#[derive(Clone, Copy, PartialEq, Eq)]
pub struct Atom(pub u16);

// A context of identifiers.
#[derive(Clone, Copy, PartialEq, Eq)]
pub struct SyntaxContext(pub u32);

// A module's number in a scope.
#[derive(Clone, Copy, PartialEq, Eq)]
pub struct ModuleId(pub u16);

// A file's number.
#[derive(Clone, Copy, PartialEq, Eq)]
pub struct FileName(pub u16);

// A name in a context.
#[derive(Clone, Copy, PartialEq, Eq)]
pub struct Id(pub Atom, pub SyntaxContext);

impl Atom {
    pub const REQUIRE: Atom = Atom(0);

    pub const MODULE: Atom = Atom(1);

    pub const EXPORTS: Atom = Atom(2);

    pub const DEFAULT: Atom = Atom(3);

    pub const MOD: Atom = Atom(4);
}

impl SyntaxContext {
    // The context of no module.
    pub fn empty() -> SyntaxContext
        ensures { result ≡ context empty }
    {
        SyntaxContext(0)
    }
}

impl ModuleId {
    // The context of what a module declares for itself.
    pub fn local_ctxt(self) -> SyntaxContext
        ensures { result ≡ local_ctxt self }
    {
        SyntaxContext(2 + 2 * (self.0 as u32))
    }

    // The context of what a module exports.
    pub fn export_ctxt(self) -> SyntaxContext
        ensures { result ≡ export_ctxt self }
    {
        SyntaxContext(3 + 2 * (self.0 as u32))
    }
}
