// The tally of the votes that a height keeps. No byte of a vote decides which way it goes: what differs is gathered
// into one number, and a 1 or 0 that is worked out from it is added. `tests/branch-free` reads this file, and what it
// calls.
#![tactic(auto)]

ghost use Rattle.std.specs.Prelude.{◌≡◌, ◌&&◌, cond, ◌<◌, ◌≤◌};
ghost use Rattle.protocol.specs.Bytes.{same};
ghost use Rattle.protocol.specs.Mask.{in_mask, mask_limit};
ghost use Rattle.protocol.specs.State.{decode, vote_of, maximum_replicas};
ghost use Rattle.protocol.specs.Deliver.{voters_for};
ghost use Rattle.book_fields.specs.Book.{Readable, Within, height_in};

// 1 if replica `s` is one of the voters and its kept vote is for this digest, and 0 if not. Compares all 32 bytes,
// whoever votes.
fn votes_for(book: &[u8], h: usize, s: usize, voters: usize, digest: &[u8]) -> usize
    requires readable { Readable book.now }
    requires within { Within book.now h }
    requires s_lt_maximum_replicas { s < maximum_replicas }
    ensures vote { result ≡
        cond (in_mask voters s && same (vote_of (height_in book.now h) s) digest.now) 1 0 }
    ensures once { result ≤ 1 }
{
    let vote = book_fields::height::vote_digest(book, h, s);
    wire::mask::one_if_in(voters, s) * difference::one_if_same(vote, digest)
}

// The mask of the replicas whose kept vote at height `h` is for this digest. One pass over the replicas, 16 at most.
pub fn voters_for(book: &[u8], h: usize, digest: &[u8]) -> usize
    requires readable { Readable book.now }
    requires within { Within book.now h }
    ensures voters { result ≡
        voters_for (height_in book.now h) digest.now (decode book.now).n }
    ensures small { result < mask_limit }
{
    let n = book_fields::head::replicas(book);
    let voters = book_fields::height::voter_mask(book, h);
    let mut mask = 0;
    for s in 0..n {
        mask += wire::mask::bit(s) * votes_for(book, h, s, voters, digest);
    }
    mask
}
