//! Names that need no declaration.
#![tactic(auto)]

ghost use Rattle.std.specs.Prelude.{◌≡◌};
ghost use Rattle.sv_seen.specs.NameMeanings.{is_builtin, is_old, is_plain, is_sum};

fn is_plain(text: &[u8]) -> bool
    ensures { result ≡ is_plain text.now }
{
    text == b"msg".as_slice()
        || text == b"block".as_slice()
        || text == b"require".as_slice()
        || text == b"assert".as_slice()
        || text == b"revert".as_slice()
}

fn is_old(text: &[u8]) -> bool
    ensures { result ≡ is_old text.now }
{
    text == b"__verifier_old_uint".as_slice()
        || text == b"__verifier_old_int".as_slice()
        || text == b"__verifier_old_bool".as_slice()
        || text == b"__verifier_old_address".as_slice()
}

fn is_sum(text: &[u8]) -> bool
    ensures { result ≡ is_sum text.now }
{
    text == b"__verifier_sum_uint".as_slice() || text == b"__verifier_sum_int".as_slice()
}

/// Whether a text is the name of something built in, in code or in an annotation.
pub fn is_builtin(in_annotation: bool, text: &[u8]) -> bool
    ensures { result ≡ is_builtin in_annotation text.now }
{
    is_plain(text) || in_annotation && (is_old(text) || is_sum(text))
}
