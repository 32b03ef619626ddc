//! Laws of instructions: the step of each, in any module, with any locals and store, from a state whose words fit.

ghost use Rattle.wb_steps.specs.Instructions.{
  Everywhere,
  UnaryLaw,
  BinaryLaw,
  DivideByZeroLaw,
  OverflowLaw,
  DropLaw,
  SelectLaw,
  NopLaw,
  UnreachableLaw,
  LocalGetLaw,
  LocalSetLaw,
  LocalTeeLaw,
  GlobalGetLaw,
  GlobalSetLaw,
  LoadLaw,
  LoadTraps,
  StoreLaw,
  StoreTraps,
  MemorySizeLaw,
};
ghost use Rattle.wb_steps.specs.Control.{
  BlockLaw,
  LoopLaw,
  IfElseLaw,
  IfLaw,
  IfIsPassed,
  LabelIsLeft,
  BrLaw,
  BrIfLaw,
  BrIfIsPassed,
  BrTableLaw,
  CallLaw,
  ReturnLaw,
  LastReturnLaw,
  FrameIsLeft,
  LastFrameIsLeft,
};

/// Numeric instructions (the standard, 4.4.1): operations of one and of two operands, and the traps of divisions.
pub fn numeric()
    ensures unary { Everywhere UnaryLaw }
    ensures binary { Everywhere BinaryLaw }
    ensures divide_by_zero { Everywhere DivideByZeroLaw }
    ensures overflow { Everywhere OverflowLaw }
{}

/// `drop` and `select` (4.4.2), `nop` and `unreachable` (4.4.5).
pub fn parametric()
    ensures drop { Everywhere DropLaw }
    ensures select { Everywhere SelectLaw }
    ensures nop { Everywhere NopLaw }
    ensures unreachable { Everywhere UnreachableLaw }
{}

/// Locals and globals (4.4.3).
pub fn variables()
    ensures local_get { Everywhere LocalGetLaw }
    ensures local_set { Everywhere LocalSetLaw }
    ensures local_tee { Everywhere LocalTeeLaw }
    ensures global_get { Everywhere GlobalGetLaw }
    ensures global_set { Everywhere GlobalSetLaw }
{}

/// Loads and stores (4.4.4) within memory, and their traps past it; the size of memory.
pub fn memory()
    ensures load { Everywhere LoadLaw }
    ensures load_traps { Everywhere LoadTraps }
    ensures store { Everywhere StoreLaw }
    ensures store_traps { Everywhere StoreTraps }
    ensures size { Everywhere MemorySizeLaw }
{}

/// Blocks, loops and ifs are entered and left (4.4.5, 4.4.6).
pub fn constructs()
    ensures block { Everywhere BlockLaw }
    ensures loops { Everywhere LoopLaw }
    ensures if_else { Everywhere IfElseLaw }
    ensures if_alone { Everywhere IfLaw }
    ensures if_passed { Everywhere IfIsPassed }
    ensures left { Everywhere LabelIsLeft }
{}

/// Branches to labels (4.4.5).
pub fn branches()
    ensures br { Everywhere BrLaw }
    ensures br_if { Everywhere BrIfLaw }
    ensures br_if_passed { Everywhere BrIfIsPassed }
    ensures br_table { Everywhere BrTableLaw }
{}

/// Calls (4.4.5, 4.4.7).
pub fn calls()
    ensures { Everywhere CallLaw }
{}

/// Returns, branches past all labels, and the ends of bodies (4.4.5, 4.4.7): to the frame that waits, or of the run.
pub fn returns()
    ensures back { Everywhere ReturnLaw }
    ensures last { Everywhere LastReturnLaw }
    ensures left { Everywhere FrameIsLeft }
    ensures last_left { Everywhere LastFrameIsLeft }
{}
