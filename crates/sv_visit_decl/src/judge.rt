ghost use Rattle.std.specs.Prelude.{◌≡◌, IfOk, OnOk};
ghost use Rattle.sv_book.specs.Visits.{opened, closed};
ghost use Rattle.sv_visit_decl.specs.DeclSites.{decl_site, function_site};

use sv_ast::{
    Ctor, Enum, ErPar, Error, EvPar, Event, Field, Function, Head, Modifier, Over, Param, Special,
    Struct, VarWord, Variable,
};
use sv_visit_stmt::StmtJudge;

/// A declaration that has no body, or a part of a declaration.
#[derive(Clone, Copy)]
pub enum DeclNode<'a> {
    /// A struct.
    Struct(&'a Struct),
    /// A field of a struct.
    Field(&'a Field),
    /// An enum.
    Enum(&'a Enum),
    /// An event.
    Event(&'a Event),
    /// A parameter of an event.
    EventParam(&'a EvPar),
    /// An error.
    Error(&'a Error),
    /// A parameter of an error.
    ErrorParam(&'a ErPar),
    /// A state variable or a constant of a contract.
    Variable(&'a Variable),
    /// A word of a variable, as `public`.
    Word(&'a VarWord),
    /// The word `override`, with its names.
    Over(&'a Over),
    /// A parameter or a result.
    Param(&'a Param),
}

/// A declaration that may have a body, or a word of one.
#[derive(Clone, Copy)]
pub enum FunctionNode<'a> {
    /// A function.
    Function(&'a Function),
    /// A constructor.
    Constructor(&'a Ctor),
    /// A function without a name, `receive` or `fallback`.
    Special(&'a Special),
    /// A modifier.
    Modifier(&'a Modifier),
    /// A word of a function, or a modifier or a base that it uses.
    Head(&'a Head),
}

/// Whoever asks the rules of a group of declarations without a body too.
pub trait DeclJudge: StmtJudge {
    /// Enters a node; whether no rule was broken in the node around before.
    fn enter_decl(&mut self, site: DeclNode<'_>) -> Result<bool, Self::Stop>
        ensures before { IfOk result (λ b. b ≡ (Self.state self.old).clear) }
        ensures state { OnOk result (Self.state self.new ≡ opened Self.book (decl_site site.entry) (Self.state self.old)) };

    /// Leaves a node, behind its parts.
    fn leave_decl(&mut self, site: DeclNode<'_>, before: bool) -> Result<(), Self::Stop>
        ensures { OnOk result (Self.state self.new ≡ closed Self.book (decl_site site.entry) before (Self.state self.old)) };
}

/// Whoever asks the rules of a group of functions and modifiers too.
pub trait FunctionJudge: DeclJudge {
    /// Enters a node; whether no rule was broken in the node around before.
    fn enter_function(&mut self, site: FunctionNode<'_>) -> Result<bool, Self::Stop>
        ensures before { IfOk result (λ b. b ≡ (Self.state self.old).clear) }
        ensures state { OnOk result (Self.state self.new ≡ opened Self.book (function_site site.entry) (Self.state self.old)) };

    /// Leaves a node, behind its parts.
    fn leave_function(&mut self, site: FunctionNode<'_>, before: bool) -> Result<(), Self::Stop>
        ensures { OnOk result (Self.state self.new ≡ closed Self.book (function_site site.entry) before (Self.state self.old)) };
}
