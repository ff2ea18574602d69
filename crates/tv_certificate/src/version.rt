//! The versions of certificates, as their first line names them.

ghost use Rattle.std.specs.Prelude.{◌≡◌};
ghost use Rattle.tv_certificate.specs.CertificateTexts.{version_number};
ghost use Rattle.tv_certificate.specs.CertificateReading.{certificate_version_in, version_of};

use tv_model::Version;
use tv_words::Word;

/// Returns the word that stands for the version.
pub fn version_number(version: Version) -> &'static [u8]
    ensures { result.now ≡ version_number version }
{
    match version {
        Version::One => b"1",
        Version::Two => b"2",
    }
}

fn version_of(word: &Word) -> Option<Version>
    ensures { result ≡ version_of word.now }
{
    if word.is(version_number(Version::One)) {
        Some(Version::One)
    } else if word.is(version_number(Version::Two)) {
        Some(Version::Two)
    } else {
        None
    }
}

/// Reads the version that a certificate's first line names, or returns `None` where it names none.
pub fn version_in(words: &[Word]) -> Option<Version>
    ensures { result ≡ certificate_version_in words.now }
{
    match words {
        [keyword, version] if keyword.is(b"tvcert") => version_of(version),
        _ => None,
    }
}
