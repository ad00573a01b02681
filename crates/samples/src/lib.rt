// Copyright 2026 Till0196
// SPDX-License-Identifier: Apache-2.0
// Carried over from core/src/output/video/filter.rs (`Samples`), and changed: depth, component and shift
// are the shape's, a method takes the struct by value, and what is out of bounds is refused.
//
// A lent plane kept together with its shape, for a viewer that asks for one sample after another. Each
// function is thin: the work is that of `plane`.
#![tactic(auto)]

ghost use Rattle.std.specs.Prelude.{◌≡◌};
ghost use Rattle.plane.specs.Answer.{GivesCode, GivesValue};

use plane::Shape;
use refusal::Refusal;

#[derive(Clone, Copy)]
pub struct Samples<'a> {
    pub plane: &'a [u8],
    pub shape: Shape,
}

impl<'a> Samples<'a> {
    pub fn new(plane: &'a [u8], shape: Shape) -> Samples<'a>
        ensures { (result.plane ≡ plane.entry) × (result.shape ≡ shape) }
    {
        Samples { plane, shape }
    }

    pub fn width(self) -> u16
        ensures { result ≡ self.entry.shape.width }
    {
        self.shape.width
    }

    pub fn height(self) -> u16
        ensures { result ≡ self.entry.shape.height }
    {
        self.shape.height
    }

    // The code at a place inside the plane.
    pub fn code(self, x: i32, y: i32) -> Result<u16, Refusal>
        ensures { GivesCode result self.entry.plane.now self.entry.shape x y }
    {
        plane::code(self.plane, self.shape, x, y)
    }

    // The value at coordinates that may lie outside the plane.
    pub fn at(self, x: i32, y: i32) -> Result<f32, Refusal>
        ensures { GivesValue result self.entry.plane.now self.entry.shape x y }
    {
        plane::at(self.plane, self.shape, x, y)
    }
}

// `at` for one that has the plane and the shape apart.
pub fn sample_at(plane: &[u8], shape: Shape, x: i32, y: i32) -> Result<f32, Refusal>
    ensures { GivesValue result plane.now shape x y }
{
    Samples::new(plane, shape).at(x, y)
}
