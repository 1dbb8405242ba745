// A scratch image: edits use octets after the image, and those of the next store's buffer stay.
ghost use Rattle.std.specs.Prelude.{◌≡◌, take};

// An image in the first octets of a buffer, and how many of its anchors after the apex stood before the message. What stands after the image is free.
// (A buffer with a length and no Vec: the library has no heap. No invariant: it is made empty, and what it holds is promised against the call's image and signer.)
#[derive(Drop)]
pub struct ScratchImage {
    pub octets: [u8; octets::IMAGE_ROOM],
    pub len: usize,
    pub former: usize,
}

impl ScratchImage {
    // The image, as a part of the buffer.
    pub fn image(&self) -> &[u8]
        ensures { result.now ≡ take self.now.len self.now.octets }
    {
        octets::slice(&self.octets, 0, self.len)
    }
}
