//! What the program says of itself.

/// The text of `--help`.
pub const HELP: &str = "\
usage: gdbix COMMAND [OPTION]... ARGUMENT...

Ask a linked ELF64 program with DWARF debug information:
  ask         answer one query               gdbix ask app name main
  serve       answer the lines of the input  gdbix serve --wait 3 app <lines
  race        answer a script for readers    gdbix race app lines
  cached      answer from a kept index       gdbix cached app idx/ main
Give a debugger its index:
  add         store the program with it      gdbix add --as gdb8 app app
  index       store the index alone          gdbix index --as gdb8 app app.idx
Ask an index that was stored:
  look gdb    a .gdb_index section           gdbix look gdb app.idx name main
  look names  a .debug_names section         gdbix look names X S name main
Check what a program says of itself:
  aranges     its address table              gdbix aranges app
  files       its tables of source files     gdbix files app stdio.h
Measure:
  drill       index a program made for it    gdbix drill 7 1000 4

QUERY is name NAME, simple NAME, addr HEX, main or cache.
'gdbix COMMAND --help' says more of one, 'man gdbix' of all; 'gdbix --version'
gives the version. A status other than 0 comes with a sentence on standard
error: 1 refused, 2 usage, 3 a file that can't be read, 4 or 5 a write failed.
";

/// The text of `--version`.
pub const VERSION: &str = "gdbix 0.1.0\n";
