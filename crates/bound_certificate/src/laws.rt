//! Laws of certificates as bytes, as functions that do nothing.

ghost use Rattle.std.specs.Prelude.{◌≡◌, ◌≤◌, List, ℕ, length};
ghost use Rattle.bound_certificate.specs.declared.cert.Cert.{Cert};
ghost use Rattle.bound_certificate.specs.declared.limits.TheConstants.{CERT_BYTES_MOST};
ghost use Rattle.bound_certificate.specs.Cert.{IsCert};
ghost use Rattle.bound_certificate.specs.Reading.{CertReading, Holds, IsCertRead};
ghost use Rattle.bound_certificate.specs.Spelling.{cert_spelling};

/// No bytes are read in two ways.
pub fn one_reading()
    ensures { (bytes : List ℕ) (a b : CertReading) → IsCertRead bytes a → IsCertRead bytes b → a ≡ b }
{}

/// Bytes spell one certificate at most.
pub fn one_certificate()
    ensures { (a b : Cert) → IsCert a → IsCert b → cert_spelling a ≡ cert_spelling b → a ≡ b }
{}

/// The round trip: the spelling of a certificate that isn't too long is read as that certificate.
pub fn spelling_is_read()
    ensures { (cert : Cert) → IsCert cert → length (cert_spelling cert) ≤ CERT_BYTES_MOST → IsCertRead (cert_spelling cert) (Holds cert) }
{}
