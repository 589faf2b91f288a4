//! Slices of values, and slices of references to values.
ghost use Rattle.std.specs.Prelude.{◌≡◌, ◌≤◌, ◌<◌, length, take, drop, slice_get, map};
ghost use Rattle.std.specs.Iterator.{YieldsFirstRef, item_count};
ghost use Rattle.domain_groups.specs.Groups.{IsFirstMatch, items_of};

use std::fmt;
use std::marker::Model;

/// A slice of references.
#[derive(Debug, Drop)]
pub struct RefSlice<'a, T> {
    refs: &'a [&'a T],
}

/// A slice of values, or of references to values.
#[derive(Debug, Drop)]
pub enum SliceRefsOrOwned<'a, T> {
    /// References.
    Refs(RefSlice<'a, T>),
    /// Values.
    Owned(&'a [T]),
}

fn ref_at<'a, T>(refs: &'a [&'a T], i: usize) -> &'a T
    requires { i < length refs.now }
    ensures { slice_get (map (λ p. p.now) refs.now) i ≡ Some result.now }
{
    refs[i]
}

fn item_at<T>(items: &[T], i: usize) -> &T
    requires { i < length items.now }
    ensures { slice_get items.now i ≡ Some result.now }
{
    &items[i]
}

impl<'a, T> SliceRefsOrOwned<'a, T> {
    /// Returns a slice of the values that the references point to, in their order.
    pub fn new_from_refs(refs: &'a [&'a T]) -> Self
        ensures { items_of result ≡ map (λ p. p.now) refs.now }
    {
        SliceRefsOrOwned::Refs(RefSlice { refs })
    }

    /// Returns a slice of these values.
    pub fn new_from_owned(owned: &'a [T]) -> Self
        ensures { items_of result ≡ owned.now }
    {
        SliceRefsOrOwned::Owned(owned)
    }

    /// Returns the number of values.
    pub fn len(&self) -> usize
        ensures { result ≡ length (items_of self.now) }
    {
        match self {
            SliceRefsOrOwned::Refs(s) => s.refs.len(),
            SliceRefsOrOwned::Owned(s) => s.len(),
        }
    }

    /// Returns the value at a place, counted from 0.
    pub fn at(&self, i: usize) -> &'a T
        requires { i < length (items_of self.now) }
        ensures { slice_get (items_of self.now) i ≡ Some result.now }
    {
        match self {
            SliceRefsOrOwned::Refs(s) => ref_at(s.refs, i),
            SliceRefsOrOwned::Owned(s) => item_at(s, i),
        }
    }

    /// Returns the first `n` values.
    pub fn front(&self, n: usize) -> SliceRefsOrOwned<'a, T>
        requires { n ≤ length (items_of self.now) }
        ensures { items_of result ≡ take n (items_of self.now) }
    {
        match self {
            SliceRefsOrOwned::Refs(s) => SliceRefsOrOwned::Refs(RefSlice { refs: &s.refs[..n] }),
            SliceRefsOrOwned::Owned(s) => SliceRefsOrOwned::Owned(&s[..n]),
        }
    }

    /// Returns all values after the first `n`.
    pub fn back(&self, n: usize) -> SliceRefsOrOwned<'a, T>
        requires { n ≤ length (items_of self.now) }
        ensures { items_of result ≡ drop n (items_of self.now) }
    {
        match self {
            SliceRefsOrOwned::Refs(s) => SliceRefsOrOwned::Refs(RefSlice { refs: &s.refs[n..] }),
            SliceRefsOrOwned::Owned(s) => SliceRefsOrOwned::Owned(&s[n..]),
        }
    }

    /// Returns the place of the first value for which `test` returns true.
    pub fn first_match<F: Fn(&T) -> bool>(&self, test: &F) -> Option<usize>
        requires { F.IsAlwaysCallable test.now }
        ensures { IsFirstMatch F.Fn test.now (items_of self.now) result }
    {
        for i in 0..self.len() {
            if test(self.at(i)) {
                return Some(i);
            }
        }
        None
    }

    /// Returns an iterator over the values, in order. Its items outlive it.
    pub fn iter(&self) -> SliceRefsOrOwnedIterator<'a, T>
        ensures { result ≡ items_of self.now }
    {
        SliceRefsOrOwnedIterator { left: self.clone() }
    }

    /// Returns the same slice. Takes no memory.
    pub fn clone(&self) -> SliceRefsOrOwned<'a, T>
        ensures { items_of result ≡ items_of self.now }
    {
        match self {
            SliceRefsOrOwned::Refs(s) => SliceRefsOrOwned::Refs(RefSlice { refs: s.refs }),
            SliceRefsOrOwned::Owned(s) => SliceRefsOrOwned::Owned(s),
        }
    }
}

/// An iterator over a slice of values, or of references. Contracts see the list of the values that
/// are left.
#[derive(Debug, Drop)]
pub struct SliceRefsOrOwnedIterator<'a, T> {
    left: SliceRefsOrOwned<'a, T>,
}

impl<'a, T> Model for SliceRefsOrOwnedIterator<'a, T> {
    ghost use Rattle.std.specs.Prelude.{List};
    ghost use Rattle.domain_groups.specs.Groups.{items_of};

    ghost Value = { List T };

    ghost view = { λ s. items_of s.left };
}

impl<'a, T> Iterator for SliceRefsOrOwnedIterator<'a, T> {
    type Item = &'a T;

    ghost next_gives = { YieldsFirstRef (λ s. s) };

    ghost remaining = { item_count (λ s. s) };

    fn next(&mut self) -> Option<&'a T> {
        if self.left.len() == 0 {
            return None;
        }
        let item = self.left.at(0);
        self.left = self.left.back(1);
        Some(item)
    }
}
