//! The places of keys and the pairs at places, by the numbers of pairs that pages have.
ghost use Rattle.std.specs.Prelude.{◌≡◌, ◌≤◌, ◌<◌, ◌+◌, ◌^◌, length, take, IfSome, IfNone};
ghost use Rattle.std.specs.List.{slice_get};
ghost use Rattle.std.specs.Option.{option_copied};
ghost use Rattle.paged_map.specs.Level.{flat};
ghost use Rattle.paged_map.specs.Pairs.{IsRising};
ghost use Rattle.paged_map.specs.Places.{place_of};
ghost use Rattle.paged_map.specs.Shape.{helds};

use crate::leaf::run_from;
use crate::page::{Node, Page};
use crate::search::child;
use crate::summary::Count;
use std::sync::Arc;

impl<K, V> Page<K, V, Count> {
    /// How many pairs are in it or below it.
    #[tactic(auto, using(crate::proofs::Counting::counted, crate::proofs::Counting::none_counted))]
    fn size(&self) -> u64
        ensures { result ≡ length self.now.pairs }
    {
        match self.total() {
            Some(count) => *count,
            None => 0,
        }
    }
}

/// How many pairs are below the first of these pages, so many of them.
fn size_of<K, V>(pages: &[Arc<Page<K, V, Count>>], end: usize) -> u64
    requires in_range { end ≤ length pages.now }
    requires small { length (flat (helds pages.now)) < 2 ^ 64 }
    ensures { result ≡ length (flat (take end (helds pages.now))) }
{
    let mut size = 0;
    let mut at = 0;
    while at < end {
        size += pages[at].size();
        at += 1;
    }
    size
}

/// Which of these pages has the pair at a place, and at which place it is there.
fn page_at<K, V>(pages: &[Arc<Page<K, V, Count>>], place: u64) -> Option<(usize, u64)>
    ensures in_range { IfSome result (λ r. r.0 < length pages.now) }
    ensures here { IfSome result (λ r. length (flat (take r.0 (helds pages.now))) + r.1 ≡ place) }
    ensures inside { IfSome result (λ r. place < length (flat (take (r.0 + 1) (helds pages.now)))) }
    ensures past { IfNone result (length (flat (helds pages.now)) ≤ place) }
{
    let mut left = place;
    let mut at = 0;
    while at < pages.len() {
        let size = pages[at].size();
        if left < size {
            return Some((at, left));
        }
        left -= size;
        at += 1;
    }
    None
}

fn pair_at_place<K, V>(pairs: &[(K, V)], place: u64) -> Option<&(K, V)>
    ensures { option_copied result ≡ slice_get pairs.now place }
{
    if place < pairs.len() as u64 {
        Some(&pairs[place as usize])
    } else {
        None
    }
}

impl<K, V> Page<K, V, Count> {
    /// The pair at a place, if there are so many.
    pub fn nth(&self, place: u64) -> Option<&(K, V)>
        ensures { option_copied result ≡ slice_get self.now.pairs place }
    {
        let mut page = self;
        let mut left = place;
        while let Node::Branch(pages) = &page.node {
            let Some((at, rest)) = page_at(pages, left) else {
                return None;
            };
            page = &pages[at];
            left = rest;
        }
        match &page.node {
            Node::Leaf(pairs) => pair_at_place(pairs, left),
            Node::Branch(_) => unreachable!(),
        }
    }
}

impl<K: Ord, V> Page<K, V, Count> {
    /// How many pairs stand before the key, or up to it if `past`.
    pub fn place(&self, key: &K, past: bool) -> u64
        requires { IsRising K.cmp self.now.pairs }
        ensures { result ≡ place_of K.cmp past key.now self.now.pairs }
    {
        // The proof needs that the number of all pairs has 64 bits.
        let _all = self.size();
        let mut page = self;
        let mut before = 0;
        while let Node::Branch(pages) = &page.node {
            let at = child(pages, key);
            before += size_of(pages, at);
            page = &pages[at];
        }
        match &page.node {
            Node::Leaf(pairs) => before + (pairs.len() - run_from(pairs, key, past).len()) as u64,
            Node::Branch(_) => unreachable!(),
        }
    }
}
