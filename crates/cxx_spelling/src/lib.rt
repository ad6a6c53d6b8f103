//! C++ names as gdb 13 and gdb 16 spell them: `Box<unsigned long>` for `Box<long unsigned int>`.
//!
//! A name is read as a sequence of tokens (C++, [lex.token]) and written anew by a grammar, each rule of which is chosen
//! by the next token alone. gdb writes what it reads in the order in which it stands, but for qualifiers, which move
//! behind their type, and the words of integer types, which become one name: so no tree is needed, and a name is
//! written in one pass. What the grammar refuses stays as it stands.
//!
//! At three places gdb writes a byte or not by what stands further on: a parenthesis before a template whose address is
//! taken, a blank before a declarator in parentheses inside of another one, and in gdb 16 a blank before a parenthesis that
//! may begin the parameters of a function. There the text has a gap, a zero byte, until this is known.
//!
//! Covered are types ([dcl.name]), with pointers, references, arrays, functions and pointers to members, names with their
//! template arguments ([temp.names]), literals and casts of literals and addresses, functions with their parameters, and
//! conversion functions. Not covered, so that such a name stays as it stands, though gdb changes it: the names of other
//! operators and of destructors with their parameters, a conversion function behind its class, a function whose type
//! stands on both sides of it, expressions with operators, casts of casts, the address of a function with its
//! parameters, references to references, names that demanglers write, as `vtable for A`.
//! None of these was met in a compiled program.
//!
//! gdb 16 differs in three ways that are covered. It reads the type of a function as a template argument, `A<void(long)>` for
//! `A<void (long int)>`, where gdb 13 leaves the name as it stands. It writes integer literals in decimal, `A<16>` for
//! `A<0x10>`, and characters by their codes, `A<(char)97>` for `A<'a'>`. Not covered, so that such a name stays as it
//! stands: a function whose result has qualifiers, which gdb 16 writes at a wrong place; literals of 2^64 or more that aren't
//! decimal, which it writes too; the bases `0d` and `0t`; digits in groups, as `1'000`; characters by `\^`, and those beyond
//! ASCII, whose codes it writes as its host's `char` has them; `operator<=>`; what is in the scope of `decltype(x)`.
//!
//! gdb keeps names that are nested deeper than its printer goes, some five hundred lists of arguments; here they are
//! spelled as others are.
#![tactic(auto)]

mod arguments;
mod bytes;
mod casts;
mod characters;
mod constants;
mod declarators;
mod functions;
mod gaps;
mod integers;
mod keywords;
mod kind;
mod literals;
mod names;
mod numbers;
mod numerals;
mod punctuation;
mod qualifiers;
mod release;
mod rules;
mod spelled;
mod symbol;
mod token;
mod translation;
mod types;
pub mod vectors;
mod writing;

pub use release::Release;
pub use spelled::{SpelledName, c_spelling, spelling};
