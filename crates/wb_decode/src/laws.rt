//! Laws of decoding, each the contract of a function that does nothing of its own.

ghost use Rattle.wb_decode.specs.Laws.{AnswersSpelled, RefusesNoSpelled};

use wb_syntax::decoded_exactly;

/// Bytes spell a module exactly where it is an answer of [`crate::decode`] for them.
pub fn answers_spelled()
    ensures { AnswersSpelled }
{
    decoded_exactly();
}

/// Where the bytes spell a module, [`crate::decode`] refuses them for want of memory alone.
pub fn refuses_no_spelled()
    ensures { RefusesNoSpelled }
{
    decoded_exactly();
}
