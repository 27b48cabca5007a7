// Which library runs: its version and the size of its book, beside what the header says that a program was compiled with.
ghost use Rattle.std.specs.Prelude.{◌≡◌};
ghost use Rattle.mqarbset.specs.Version.{version, book_size};

// The version of the library: major times 10000, minor times 100, patch.
pub fn mq_version() -> u32
    ensures { result ≡ version }
{
    900
}

// The bytes of a class book.
pub fn mq_book_bytes() -> u32
    ensures { result ≡ book_size }
{
    6432
}
