//! Variables by activity: a binary heap that knows where each stands.

use crate::table::{at, fill, put};
use std::alloc::Global;

const NOWHERE: usize = usize::MAX;

#[derive(Drop)]
pub struct Order {
    /// Room for all variables, of which so many are in the heap.
    heap: Vec<u32>,
    count: usize,
    places: Vec<usize>,
    activity: Vec<f64>,
    step: f64,
}

impl Order {
    /// Of no variables.
    pub fn new(alloc: Global) -> Self {
        Order {
            heap: Vec::new(alloc),
            count: 0,
            places: Vec::new(alloc),
            activity: Vec::new(alloc),
            step: 1.0,
        }
    }

    /// Room for the variables below this one.
    pub fn make_room(&mut self, size: usize, lacks_memory: &mut bool) {
        fill(&mut self.heap, 0, size, lacks_memory);
        fill(&mut self.places, NOWHERE, size, lacks_memory);
        fill(&mut self.activity, 0.0, size, lacks_memory);
    }

    fn activity_at(&self, place: usize) -> f64 {
        let variable = at(&self.heap, place, 0);
        at(&self.activity, variable as usize, 0.0)
    }

    fn swap(&mut self, first: usize, second: usize) {
        let a = at(&self.heap, first, 0);
        let b = at(&self.heap, second, 0);
        put(&mut self.heap, first, b);
        put(&mut self.heap, second, a);
        put(&mut self.places, b as usize, first);
        put(&mut self.places, a as usize, second);
    }

    fn rise(&mut self, from: usize) {
        let mut place = from;
        for _ in 0..64 {
            let above = place.saturating_sub(1) / 2;
            if place == 0 || self.activity_at(place) <= self.activity_at(above) {
                return;
            }
            self.swap(place, above);
            place = above;
        }
    }

    fn sink(&mut self) {
        let mut place = 0usize;
        let count = self.count;
        for _ in 0..64 {
            let left = place.saturating_mul(2).saturating_add(1);
            let right = left.saturating_add(1);
            if left >= count {
                return;
            }
            let right_is_more = right < count && self.activity_at(right) > self.activity_at(left);
            let below = if right_is_more { right } else { left };
            if self.activity_at(below) <= self.activity_at(place) {
                return;
            }
            self.swap(place, below);
            place = below;
        }
    }

    /// Puts a variable back.
    pub fn insert(&mut self, variable: u32) {
        if at(&self.places, variable as usize, 0) != NOWHERE {
            return;
        }
        let place = self.count;
        put(&mut self.heap, place, variable);
        put(&mut self.places, variable as usize, place);
        self.count = place.saturating_add(1);
        self.rise(place);
    }

    /// Takes the most active variable out.
    pub fn pop(&mut self) -> Option<u32> {
        let last = self.count.checked_sub(1)?;
        self.swap(0, last);
        let top = at(&self.heap, last, 0);
        put(&mut self.places, top as usize, NOWHERE);
        self.count = last;
        self.sink();
        Some(top)
    }

    /// Takes all out.
    pub fn clear(&mut self) {
        for place in 0..self.count {
            let variable = at(&self.heap, place, 0);
            put(&mut self.places, variable as usize, NOWHERE);
        }
        self.count = 0;
    }

    /// Raises a variable's activity.
    pub fn bump(&mut self, variable: u32) {
        let raised = at(&self.activity, variable as usize, 0.0) + self.step;
        put(&mut self.activity, variable as usize, raised);
        let place = at(&self.places, variable as usize, NOWHERE);
        if place != NOWHERE {
            self.rise(place);
        }
        if raised > 1e100 {
            for activity in self.activity.iter_mut() {
                *activity = *activity * 1e-100;
            }
            self.step = self.step * 1e-100;
        }
    }

    /// Makes later bumps count more.
    pub fn decay(&mut self) {
        self.step = self.step / 0.95;
    }
}
