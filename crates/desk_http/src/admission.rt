//! Which bodies are forwarded.

ghost use Rattle.std.specs.Prelude.{◌≡◌, true, false, MatchOption};
ghost use Rattle.http.specs.Request.{head_of, body_of};
ghost use Rattle.desk_http.specs.Heads.{is_own_site};

use crate::field::is_own_site;
use bytes::Bytes;
use http::Request;

/// The body of a request of this site's own page. Only [`admit`] makes one.
#[derive(Drop)]
pub struct Admitted<'a> {
    pub body: &'a [u8],
    is_own_site: bool,
    ghost own: { is_own_site ≡ true },
}

/// The body of a request, where its host, its origin and its type are this site's.
pub fn admit(request: &Request<Bytes>) -> Option<Admitted<'_>>
    ensures { MatchOption result (is_own_site (head_of request.now) ≡ false)
        (λ admitted. (admitted.body.now ≡ body_of request.now) × (is_own_site (head_of request.now) ≡ true)) }
{
    let is_own_site = is_own_site(request);
    if !is_own_site {
        return None;
    }
    let body = request.body().as_slice();
    Some(Admitted { body, is_own_site })
}
