ghost use Rattle.std.specs.Option.{option_copied};
ghost use Rattle.sv_cert.specs.LogSteps.{IsCut};

/// The text before the first byte `mark`, and the text behind that byte; all of it and `None` where no such byte stands.
pub fn cut(text: &[u8], mark: u8) -> (&[u8], Option<&[u8]>)
    ensures { IsCut mark text.now result.0.now (option_copied result.1) }
{
    for (i, byte) in text.iter().enumerate() {
        if *byte == mark {
            return (&text[..i], Some(&text[i + 1..]));
        }
    }
    (text, None)
}
