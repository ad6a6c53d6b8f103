//! Names with the spelling that gdb 13.1 and 16.3 have for them in an index that they write.

use cxx_spelling::Release::{Gdb13, Gdb16};
use cxx_spelling::{Release, SpelledName, c_spelling, spelling};
use std::alloc::Global;
use std::process::Abort;
use std::test::Fail;

type Row = (&'static [u8], &'static [u8]);

const TYPES: &[Row] = &[
    (b"unsigned", b"unsigned int"),
    (b"signed", b"int"),
    (b"short int", b"short"),
    (b"long long unsigned int", b"unsigned long long"),
    (b"char unsigned", b"unsigned char"),
    (b"long double", b"long double"),
    (b"const long double", b"long double const"),
    (b"restrict volatile const A", b"A const volatile restrict"),
    (b"const char *const *", b"char const* const*"),
    (b"Box<long unsigned int>", b"Box<unsigned long>"),
    (b"A < int ,char > ", b"A<int, char>"),
    (b"A<B<C<long int> > >::D", b"A<B<C<long> > >::D"),
    (b"const A<const long int>", b"A<long const> const"),
    (b"::A<::B<long int>::C>", b"A<B<long>::C>"),
    (
        b"(anonymous namespace)::A<long int>",
        b"(anonymous namespace)::A<long>",
    ),
    (b"unsigned __int128", b"unsigned int __int128"),
];

const DECLARATORS: &[Row] = &[
    (b"A<long int &, B&&>", b"A<long&, B&&>"),
    (b"A<int(*)(long int)>", b"A<int (*)(long)>"),
    (
        b"A<int (*(*)(char))(long int)>",
        b"A<int (*(*)(char))(long)>",
    ),
    (
        b"A<int (*(C::*)(char) const)(long int)>",
        b"A<int (* (C::*)(char) const)(long)>",
    ),
    (b"A<int (&)[3]>", b"A<int (&) [3]>"),
    (b"A<int*[2][3]>", b"A<int* [2][3]>"),
    (b"A<long int[5ul]>", b"A<long [5ul]>"),
    (
        b"A<void(::C::*)(long int) const>",
        b"A<void (C::*)(long) const>",
    ),
    (b"A<B*C<long int>::D::*const>", b"A<B* C<long>::D::* const>"),
    (b"A<int (* const)(void)>", b"A<int (* const)()>"),
    (b"A<int (*)(void*, ...)>", b"A<int (*)(void*, ...)>"),
    (b"A<int (*[3])(long int)>", b"A<int (* [3])(long)>"),
    (b"A<int (*(*)[2])(long int)>", b"A<int (* (*) [2])(long)>"),
    (
        b"A<int (*(*(*)[2])(char))(long int)>",
        b"A<int (*(* (*) [2])(char))(long)>",
    ),
    (b"A<int (*(C::*)[2])[3]>", b"A<int (* (C::*) [2]) [3]>"),
];

const CONSTANTS: &[Row] = &[
    (
        b"A<(bool)1, (bool)0, (bool)2, true>",
        b"A<true, false, (bool)2, true>",
    ),
    (
        b"A<(unsigned long)4, (int)-1, (short)1>",
        b"A<4ul, -1, (short)1>",
    ),
    (b"A<4LU, 1lll, 0x10u>", b"A<4ul, 1ll, 0x10u>"),
    (
        b"A<(E)2u, (N::E)-1, (const int)4>",
        b"A<(E)2, (N::E)-1, (int const)4>",
    ),
    (
        b"A<'a', (char)97, (unsigned)'a'>",
        b"A<(char)'a', (char)97, 'a'u>",
    ),
    (
        b"A<'\\n', '\\177', '\\''>",
        b"A<(char)'\\n', (char)'\\177', (char)'\\''>",
    ),
    (b"A<((E)1), (-1), (void*)0>", b"A<(E)1, -1, (void*)0>"),
    (
        b"A<1.5, -1.5f, 1.25e+0l, 1e5>",
        b"A<(double)[1.5], (float)-[1.5], (long double)[1.25e+0], (double)[1e5]>",
    ),
    (
        b"A<(double)1ul, (float)-1.5f, (int)1.5>",
        b"A<(double)[1], (float)-[1.5], 1.5>",
    ),
    (
        b"A<(E)true, (unsigned long)false, (bool)true>",
        b"A<(E)1, 0ul, true>",
    ),
    (
        b"A<(1.5), (true), ('a'), (E)(2)>",
        b"A<(double)[1.5], true, (char)'a', (E)2>",
    ),
    (
        b"A<(float*)0, (const double)1.5>",
        b"A<(float*)0, (double const)1.5>",
    ),
];

const ADDRESSES: &[Row] = &[
    (b"A<(& N::f<int>), (& f)>", b"A<&N::f<int>, &f>"),
    (
        b"A<&f<long int>, (& f<B<int> >)>",
        b"A<&(f<long>), &(f<B<int> >)>",
    ),
    (b"A<&f<&g<long int> > >", b"A<&(f<&(g<long>)>)>"),
    (
        b"A<&f<long int>::g, &N::g<long int> >",
        b"A<&f<long>::g, &N::g<long> >",
    ),
    (
        b"A<((const int*)(& f<int>))>",
        b"A<(int const*)(&(f<int>))>",
    ),
    (
        b"A<&B::operator const char *>",
        b"A<&B::operator char const*>",
    ),
];

const FUNCTIONS: &[Row] = &[
    (b"operator const char *", b"operator char const*"),
    (
        b"operator A<long unsigned int>&",
        b"operator A<unsigned long>&",
    ),
    (b"f(void)", b"f()"),
    (
        b"f<long int>(long int,char) const",
        b"f<long>(long, char) const",
    ),
    (b"f(long int)::A::B", b"f(long)::A::B"),
    (b"void N::f<long int>(long int)", b"void N::f<long>(long)"),
    (b"A (*)(long int)", b"A (*)(long)"),
];

// What gdb's grammar refuses.
const REFUSED: &[Row] = &[
    (b"A<B<long int>>", b"A<B<long int>>"),
    (b"A<>", b"A<>"),
    (b"A<long int, >", b"A<long int, >"),
    (b"operator==", b"operator=="),
    (b"operator==<long int>", b"operator==<long int>"),
    (b"~A<long int>", b"~A<long int>"),
    (
        b"A<main()::<lambda(long int)> >",
        b"A<main()::<lambda(long int)> >",
    ),
    (b"A<long int, {...}>", b"A<long int, {...}>"),
    (b"A<struct B, long int>", b"A<struct B, long int>"),
    (b"__int128 unsigned const", b"__int128 unsigned const"),
    (b"A<long int, \"abc\">", b"A<long int, \"abc\">"),
    (b"A<long int, x + 1>", b"A<long int, x + 1>"),
    (b"unsigned signed", b"unsigned signed"),
    (b"const complex float", b"const complex float"),
    (b"", b""),
];

// Names that gdb 16.3 spells otherwise than 13.1.
const FUNCTION_TYPES: &[Row] = &[
    (b"A<void (long int)>", b"A<void(long)>"),
    (b"A<void ()>", b"A<void()>"),
    (b"A<int (long int, ...) const>", b"A<int(long, ...) const>"),
    (b"A<B<long int> (void)>", b"A<B<long>()>"),
    (b"A<long unsigned int (B)>", b"A<unsigned long(B)>"),
    (b"A<long double (::B)>", b"A<long double(B)>"),
    (b"A<B::C (D::E*, F)>", b"A<B::C(D::E*, F)>"),
    (
        b"A<decltype(nullptr), long int>",
        b"A<decltype(nullptr), long>",
    ),
    (b"A<void (A<void (char)>)>", b"A<void(A<void(char)>)>"),
    (
        b"A<void (C::*)(long int), B (D)>",
        b"A<void (C::*)(long), B(D)>",
    ),
    (
        b"A<int (*)(A<void (int)>), char (&)[3]>",
        b"A<int (*)(A<void(int)>), char (&) [3]>",
    ),
];

const NUMBERS: &[Row] = &[
    (b"A<0x10u, 017, 0b101, -0x10l>", b"A<16u, 15, 5, -16l>"),
    (b"A<00, 0xffffffffffffffff>", b"A<0, 18446744073709551615>"),
    (b"A<(bool)0x1, (E)010>", b"A<true, (E)8>"),
    (b"A<long int[0x10]>", b"A<long [16]>"),
    (
        b"A<'a', '\\n', (unsigned)'b'>",
        b"A<(char)97, (char)10, 98u>",
    ),
    (b"A<'\\177', (E)'\\''>", b"A<(char)127, (E)39>"),
];

// What the grammar of 16.3 refuses too.
const REFUSED_BY_BOTH: &[Row] = &[
    (b"A<void*(long int)>", b"A<void*(long int)>"),
    (b"A<B& (long int)>", b"A<B& (long int)>"),
    (b"A<void (int)(long int)>", b"A<void (int)(long int)>"),
    (b"A<void ((long int))>", b"A<void ((long int))>"),
    (b"A<B<void (int)>>", b"A<B<void (int)>>"),
];

const REFUSED_BY_NEWER: &[Row] = &[
    (b"A<long int, 08>", b"A<long int, 08>"),
    (b"A<long int, 0b2>", b"A<long int, 0b2>"),
];

const NAMES_OF_C: &[Row] = &[
    (b"long unsigned int", b"unsigned long"),
    (b"unsigned", b"unsigned int"),
    (b"A<unsigned>", b"A<unsigned>"),
    (b"A<long unsigned int>", b"A<unsigned long>"),
];

fn are_spelled(rt: &impl Abort, alloc: Global, release: Release, rows: &[Row]) -> Result<(), Fail> {
    for row in rows {
        has_text(rt, spelling(alloc, release, row.0)?, row.1)?;
    }
    Ok(())
}

fn has_text(rt: &impl Abort, name: SpelledName<'_>, wanted: &[u8]) -> Result<(), Fail> {
    assert_eq!(rt; name.bytes(), wanted);
    Ok(())
}

fn are_spelled_by_both(rt: &impl Abort, alloc: Global, rows: &[Row]) -> Result<(), Fail> {
    are_spelled(rt, alloc, Gdb13, rows)?;
    are_spelled(rt, alloc, Gdb16, rows)
}

#[test]
fn types(rt: HostRuntime) -> Result<(), Fail> {
    are_spelled_by_both(&rt, rt.alloc(), TYPES)
}

#[test]
fn declarators(rt: HostRuntime) -> Result<(), Fail> {
    are_spelled_by_both(&rt, rt.alloc(), DECLARATORS)
}

#[test]
fn constants(rt: HostRuntime) -> Result<(), Fail> {
    are_spelled(&rt, rt.alloc(), Gdb13, CONSTANTS)
}

#[test]
fn addresses(rt: HostRuntime) -> Result<(), Fail> {
    are_spelled_by_both(&rt, rt.alloc(), ADDRESSES)
}

#[test]
fn functions(rt: HostRuntime) -> Result<(), Fail> {
    are_spelled_by_both(&rt, rt.alloc(), FUNCTIONS)
}

#[test]
fn refused(rt: HostRuntime) -> Result<(), Fail> {
    are_spelled_by_both(&rt, rt.alloc(), REFUSED)?;
    are_spelled_by_both(&rt, rt.alloc(), REFUSED_BY_BOTH)
}

#[test]
fn types_of_functions(rt: HostRuntime) -> Result<(), Fail> {
    are_spelled(&rt, rt.alloc(), Gdb16, FUNCTION_TYPES)?;
    for row in FUNCTION_TYPES {
        has_text(&rt, spelling(rt.alloc(), Gdb13, row.0)?, row.0)?;
    }
    Ok(())
}

#[test]
fn numbers(rt: HostRuntime) -> Result<(), Fail> {
    are_spelled(&rt, rt.alloc(), Gdb16, NUMBERS)?;
    are_spelled(&rt, rt.alloc(), Gdb16, REFUSED_BY_NEWER)
}

#[test]
fn names_of_c(rt: HostRuntime) -> Result<(), Fail> {
    for row in NAMES_OF_C {
        has_text(&rt, c_spelling(rt.alloc(), Gdb13, row.0)?, row.1)?;
        has_text(&rt, c_spelling(rt.alloc(), Gdb16, row.0)?, row.1)?;
    }
    Ok(())
}
