//! The bytes of Debian's versions.

ghost use Rattle.scheme_deb.specs.Texts.{is_before_colon, is_of_revision, is_of_upstream};

use version_order::ByteSet;

// Which bytes are of a revision: letters, digits, plus signs, dots and tildes.
static OF_REVISION: [bool; 256] = [
    false, false, false, false, false, false, false, false, false, false, false, false, false,
    false, false, false, false, false, false, false, false, false, false, false, false, false,
    false, false, false, false, false, false, false, false, false, false, false, false, false,
    false, false, false, false, true, false, false, true, false, true, true, true, true, true,
    true, true, true, true, true, false, false, false, false, false, false, false, true, true,
    true, true, true, true, true, true, true, true, true, true, true, true, true, true, true, true,
    true, true, true, true, true, true, true, true, false, false, false, false, false, false, true,
    true, true, true, true, true, true, true, true, true, true, true, true, true, true, true, true,
    true, true, true, true, true, true, true, true, true, false, false, false, true, false, false,
    false, false, false, false, false, false, false, false, false, false, false, false, false,
    false, false, false, false, false, false, false, false, false, false, false, false, false,
    false, false, false, false, false, false, false, false, false, false, false, false, false,
    false, false, false, false, false, false, false, false, false, false, false, false, false,
    false, false, false, false, false, false, false, false, false, false, false, false, false,
    false, false, false, false, false, false, false, false, false, false, false, false, false,
    false, false, false, false, false, false, false, false, false, false, false, false, false,
    false, false, false, false, false, false, false, false, false, false, false, false, false,
    false, false, false, false, false, false, false, false, false, false, false, false, false,
    false, false, false, false, false, false, false, false, false, false,
];

/// The bytes of a revision.
pub(crate) struct OfRevision;

impl ByteSet for OfRevision {
    ghost has = { is_of_revision };

    #[inline(always)]
    fn has(byte: u8) -> bool {
        OF_REVISION[usize::from(byte)]
    }
}

/// The bytes of an upstream version behind no epoch: those of a revision, and hyphens.
pub(crate) struct BeforeColon;

impl ByteSet for BeforeColon {
    ghost has = { is_before_colon };

    #[inline(always)]
    fn has(byte: u8) -> bool {
        OfRevision::has(byte) || byte == b'-'
    }
}

/// The bytes of an upstream version: the same, and colons.
pub(crate) struct OfUpstream;

impl ByteSet for OfUpstream {
    ghost has = { is_of_upstream };

    #[inline(always)]
    fn has(byte: u8) -> bool {
        OfRevision::has(byte) || matches!(byte, b'-' | b':')
    }
}
