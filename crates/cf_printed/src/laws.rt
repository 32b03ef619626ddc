//! Laws of reading what is printed, each as the contract of a function that does nothing.

ghost use Rattle.cf_printed.specs.Laws.{CoresAreScoped, ReadsBack, ReadsOnly, TokensArePieces};

use cf_lex::lexes_one;
use cf_parse::reads_one;

/// The tokens of a printed program are the printed tokens.
pub fn tokens_are_pieces()
    ensures { TokensArePieces }
{}

/// A printed core reads as an explicit program with the same core, marks and `implicit` flags aside.
pub fn reads_back()
    ensures { ReadsBack }
{}

/// Whatever a printed core reads as is an explicit program with the same core, marks and `implicit` flags aside.
pub fn reads_only()
    ensures { ReadsOnly }
{
    lexes_one();
    reads_one();
}

/// The core of an explicit source of at most 1048576 bytes is such a program as can be printed.
pub fn cores_are_scoped()
    ensures { CoresAreScoped }
{}
