//! Two or more, with commas between, and what stands behind them.
#![tactic(auto, using(sv_read::proofs::Reading::fails_memory))]

ghost use Rattle.std.specs.Prelude.{◌≡◌, ◌∷◌, IfOk, map};
ghost use Rattle.sv_parse_stmt.specs.StmtWords.{seq, listed, quoted, two_or_more};
ghost use Rattle.sv_ast.specs.declared.class.Class.TheVariants as k;

use crate::reader::{NestedStmts, Statements};
use sqlite_items::Items;
use std::alloc::{AllocError, Global};
use sv_read::words::COMMA;
use sv_read::{Cursor, Listed, Parse, ParseError, Word};

/// Two or more, with commas between, and what stands behind them.
#[derive(Drop)]
pub struct TwoOrMore<A, B> {
    pub items: Items<A>,
    pub behind: B,
}

impl<N: NestedStmts, A: Parse<Statements<N>>, B: Parse<Statements<N>>> Parse<Statements<N>>
    for TwoOrMore<A, B> {
    ghost part = { seq A.part (seq (quoted k.Comma) (seq (listed A.part) B.part)) };

    ghost tree = { λ t. two_or_more (map A.tree t.items) (B.tree t.behind) };

    fn parse(
        reader: &Statements<N>,
        cursor: &mut Cursor<'_>,
    ) -> Result<TwoOrMore<A, B>, ParseError> {
        type Parts<A, B> = (A, Word<COMMA>, Listed<A>, B);
        let (first, _, others, behind) = <Parts<A, B> as Parse<Statements<N>>>::parse(
            reader, cursor,
        )?;
        let items = with_first(cursor.alloc(), first, others.0)?;
        Ok(TwoOrMore { items, behind })
    }
}

/// One, and then the others.
fn with_first<A: Drop>(alloc: Global, first: A, others: Items<A>) -> Result<Items<A>, AllocError>
    ensures { IfOk result (λ all. all ≡ first ∷ others) }
{
    let mut all = Items::new(alloc);
    all.push(first)?;
    all.append(others)?;
    Ok(all)
}
