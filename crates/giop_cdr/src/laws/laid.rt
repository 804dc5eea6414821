//! The trait of values that have a layout, of which the laws of encapsulations speak.

/// A value with a layout on the wire. A law cannot range over layouts; it ranges over the types with
/// this trait, to which any crate may give a layout of its own.
pub trait Laid {
    ghost use Rattle.giop_cdr.specs.Layout.{Layout};

    // The layout of the value, as contracts see it.
    ghost layout: { Layout Self };
}
