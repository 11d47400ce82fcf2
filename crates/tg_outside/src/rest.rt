// What is left of bytes in memory, which is read from the front.
ghost use Rattle.std.specs.Prelude.{◌≡◌, ◌≤◌, ◌<◌, ◌++◌, [], length, take};

#[derive(Clone, Copy, Debug)]
pub struct Rest<'a> {
    pub bytes: &'a [u8],
}

impl Rest<'_> {
    // Puts a front of the bytes at the front of the buffer, as long as it has room and `most` allows.
    pub fn take_front(&mut self, buffer: &mut [u8], most: usize) -> usize
        ensures within { result ≤ length buffer.new }
        ensures front { self.old.bytes.now ≡ take result buffer.new ++ self.new.bytes.now }
        ensures end { result ≡ 0 → 0 < length buffer.new → 0 < most → self.new.bytes.now ≡ [] }
    {
        let count = self.bytes.len().min(buffer.len()).min(most);
        let (front, back) = self.bytes.split_at(count);
        buffer.split_at_mut(count).0.copy_from_slice(front);
        self.bytes = back;
        count
    }
}
