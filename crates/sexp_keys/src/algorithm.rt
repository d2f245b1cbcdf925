//! The four algorithms whose keys are read, with the names of their parameters (keyformat.txt).
//! Plain tables. Begin with `Algorithm::of`; each function is its namesake in `specs/Names`.

ghost use Rattle.std.specs.Prelude.{◌≡◌, map};
ghost use Rattle.sexp_keys.specs.Names.{algorithm_name, algorithm_of, public_names, secret_names};

/// The algorithms whose private keys are read.
#[derive(Clone, Copy, Debug, PartialEq, Eq)]
pub enum Algorithm {
    /// RSA, named `rsa`.
    Rsa,
    /// DSA, named `dsa`.
    Dsa,
    /// Elgamal, named `elg`.
    Elg,
    /// Elliptic curves, named `ecc`.
    Ecc,
}

impl Algorithm {
    pub(crate) fn of(name: &[u8]) -> Option<Algorithm>
        ensures { result ≡ algorithm_of name.now }
    {
        if name == b"rsa".as_slice() {
            Some(Algorithm::Rsa)
        } else if name == b"dsa".as_slice() {
            Some(Algorithm::Dsa)
        } else if name == b"elg".as_slice() {
            Some(Algorithm::Elg)
        } else if name == b"ecc".as_slice() {
            Some(Algorithm::Ecc)
        } else {
            None
        }
    }

    /// The name in an expression.
    pub fn name(self) -> &'static [u8]
        ensures { result.now ≡ algorithm_name self }
    {
        match self {
            Algorithm::Rsa => b"rsa",
            Algorithm::Dsa => b"dsa",
            Algorithm::Elg => b"elg",
            Algorithm::Ecc => b"ecc",
        }
    }

    // The names of the public parameters, in order. Those of an elliptic curve have no fixed names.
    pub(crate) fn public_names(self) -> &'static [&'static [u8]]
        ensures { map (λ name. name.now) result.now ≡ public_names self }
    {
        match self {
            Algorithm::Rsa => &[b"n", b"e"],
            Algorithm::Dsa => &[b"p", b"q", b"g", b"y"],
            Algorithm::Elg => &[b"p", b"g", b"y"],
            Algorithm::Ecc => &[],
        }
    }

    // The names of the secret parameters, in order.
    pub(crate) fn secret_names(self) -> &'static [&'static [u8]]
        ensures { map (λ name. name.now) result.now ≡ secret_names self }
    {
        match self {
            Algorithm::Rsa => &[b"d", b"p", b"q", b"u"],
            Algorithm::Dsa => &[b"x"],
            Algorithm::Elg => &[b"x"],
            Algorithm::Ecc => &[b"d"],
        }
    }
}
